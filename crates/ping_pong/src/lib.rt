// Ping-Pong: a method of keeping that writes every change twice, to the live line and to one of two shadows.
#![tactic(auto)]

pub mod shadowed;
