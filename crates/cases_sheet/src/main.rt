// The cases of the class sheet. Standard input has them, a line each; tests/sheet/cases.py makes `stdout` of it by a model of its own.
#![tactic(auto)]

mod bench;

use bench::Bench;
use cases::bytes::script::carry_out;

fn main(rt: HostRuntime) {
    carry_out::<Bench>(&rt);
}
