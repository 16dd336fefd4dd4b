// The cases of a run. Standard input has them, a call to a line: each is carried out, and printed with its answer.
#![tactic(auto)]

mod bench;

use bench::Bench;
use cases::bytes::script::carry_out;

fn main(rt: HostRuntime) {
    carry_out::<Bench>(&rt);
}
