// Plays the calls on standard input and prints an answer for each line, as document 01 has it.
#![tactic(auto)]

use line_program::Program;

fn main(rt: HostRuntime) {
    Program::Turns.run(&rt);
}
