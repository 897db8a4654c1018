// What demand 3 says of the code: statements in specs/, of any call that meets the contracts of the readers and the writers. No code.
#![tactic(auto)]
