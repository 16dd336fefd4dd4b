// The cases of the notation. Standard input has them, a line each, which is printed with its answer.
#![tactic(auto)]

mod bench;
mod stored;

use bench::Bench;
use cases::bytes::script::carry_out;

fn main(rt: HostRuntime) {
    carry_out::<Bench>(&rt);
}
