// A line of the script is carried out: a call's name, and what the call is given. `;`: a remark, shown.
use anyhow::{Result, bail};
use cases::answers::Shown;
use cases::lent::Lent;
use cases::script::{self, Line, byte, number, numbers, place, split_word};
use cases::texts::{expand, split_name};
use std::alloc::Global;

// What is lent in part.
#[derive(Drop)]
pub struct Bench {
    part: Lent,
}

impl script::Bench for Bench {
    fn new(alloc: Global) -> Result<Self> {
        let part = Lent::new(alloc, b'.', 6, 4)?;
        Ok(Bench { part })
    }

    fn carry_out(&mut self, rt: &(impl Print + AllocGlobal), sign: char, line: Line) -> Result<()> {
        print!(rt; "{}", line.whole)?;
        if sign == ';' {
            return Ok(println!(rt; "")?);
        }
        let (call, given) = split_word(line.whole);
        match self.call(rt, call, given) {
            Ok(()) => Ok(()),
            Err(why) => Ok(println!(rt; ": error, {why}")?),
        }
    }
}

impl Bench {
    fn call(&mut self, rt: &(impl Print + AllocGlobal), call: &str, given: &str) -> Result<()> {
        match call {
            "word" => {
                let (word, rest) = split_word(given);
                println!(rt; ": {word}, {rest}")?;
            }
            "number" => println!(rt; ": {}", number(given)?)?,
            "byte" => println!(rt; ": {}", byte(given)?)?,
            "place" => {
                let (at, value) = place(given)?;
                println!(rt; ": {at}, {value}")?;
            }
            "numbers" => {
                let [first, second] = numbers::<2>(given)?;
                println!(rt; ": {first}, {second}")?;
            }
            "name" => {
                let (name, text) = split_name(given)?;
                println!(rt; ": {name}, {text}")?;
            }
            "text" => {
                let text = expand(rt.alloc(), given)?;
                println!(rt; ": {} bytes, {}", text.len(), Shown(text.as_slice()))?;
            }
            "size" => println!(rt; ": {}", expand(rt.alloc(), given)?.len())?,
            _ => self.lent(rt, call, given)?,
        }
        Ok(())
    }

    // Of a buffer lent in part: `new ROOM SIZE`, `lend SIZE`, `fill BYTE`, `put AT BYTE`, and `star AT`.
    fn lent(&mut self, rt: &(impl Print + AllocGlobal), call: &str, given: &str) -> Result<()> {
        match call {
            "new" => {
                let [room, size] = numbers::<2>(given)?;
                self.part = Lent::new(rt.alloc(), b'.', room, size)?;
            }
            "lend" => self.part.lend(number(given)?)?,
            "fill" => self.part.get_mut().fill(byte(given)?),
            "put" => self.part.put_placed(given)?,
            "star" => self.part.put(number(given)?, b'*')?,
            _ => bail!("no such call"),
        }
        Ok(println!(rt; ": {}", Shown(self.part.get()))?)
    }
}
