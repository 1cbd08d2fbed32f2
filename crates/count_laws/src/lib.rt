#![tactic(auto)]

// Laws of counts, with no function: "The count of a cell is the number of other cells whose routes contain it" is met by whatever is, at
// each cell, the sum over the cells that flow into it of 1 and their counts; and a pass that hands every finished cell's count on to the
// cell it flows into ends with that sum, or shows that some route does not end. A cell's mark says where it flows; the geometry comes in
// once (`proofs/Sheet`): a cell has at most eight donors.
