// What the calls of a book mean, and what is true of every book however it was used. There is no code here: the book's
// contracts name these definitions, and its proofs cite the theorem.
#![tactic(auto)]
