// What a line keeps over its whole history: fair shares and the order of each session.
#![tactic(auto)]

pub mod theorems;
