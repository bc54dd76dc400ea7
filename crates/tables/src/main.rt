// Plays the calls on standard input, five operations more than `turns` has, and prints for each line an answer and the whole table after it.
#![tactic(auto)]

use line_program::Program;

fn main(rt: HostRuntime) {
    Program::Tables.run(&rt);
}
