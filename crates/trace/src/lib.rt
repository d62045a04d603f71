// What the gates of an accepted sheet hold, by the exact values of its rows: stated in specs/, why it is so in proofs/; no functions.
#![tactic(auto)]
