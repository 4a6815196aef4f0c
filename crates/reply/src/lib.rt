// What a frame is answered: the only code that writes the reply.
#![tactic(auto)]

pub mod speaking;
