// From a new builder to the reader of saved tables: the statement stands in specs/, its proof in proofs/. There is no
// code here.
#![tactic(auto)]
