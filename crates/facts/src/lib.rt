// The starred worked facts of document 01, proved: the table stands in specs/, its proof in proofs/. There is no code
// here; the program `worked_facts` runs them.
#![tactic(auto)]
