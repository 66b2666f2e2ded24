// Functions over a whole board that are not its methods: start, whether it is quiet, and its books in a lent slice.
// Rests on machine and views, on arrays, flight, site, masks, books, posting and sets.
#![tactic(auto)]

pub mod figures;
pub mod opening;
pub mod quiet;
