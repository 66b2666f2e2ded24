// Records that have one order stand for the same books: a theorem over definitions; there is no function.
// Rests on broadcast for lists and orders, and on books.
#![tactic(auto)]
