// What the tree of a sound manifest is at each of its places. It is said in specs/ and proved in proofs/; nothing runs here.
#![tactic(auto)]
