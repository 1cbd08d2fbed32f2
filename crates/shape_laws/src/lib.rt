#![tactic(auto)]

// The laws of oblong cells (document 02, Wish 7), with no function: square cells give the codes of 1 by 1 at any width, since all squared
// distances are then those of 1 by 1 in another unit; and nothing but codes depends on the shape of the cells.
