// The cases of scripts of text: what the calls of `cases` on words, numbers, texts and lent buffers answer. Standard input has them, a line each,
// which is printed with its answer.
#![tactic(auto)]

mod bench;

use anyhow::Result;
use bench::Bench;
use cases::script::carry_out;

fn main(rt: HostRuntime) -> Result<()> {
    carry_out::<Bench>(&rt)
}
