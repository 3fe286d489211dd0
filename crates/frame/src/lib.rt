// Bytes laid over a frame: a definition and its laws, which every writer of bytes shares.
#![tactic(auto)]
