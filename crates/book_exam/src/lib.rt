// No code: the exam's marked cases, waits with a limit, charges and odd kernels that no list of the programs gets to, milliseconds and loads, computed from the definitions.
#![tactic(auto)]
