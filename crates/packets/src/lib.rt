//! What a packet of messages does: the definitions, and the laws above them. It has no code.

#![tactic(auto)]
