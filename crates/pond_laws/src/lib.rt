#![tactic(auto)]

// Laws of the ponds (document 02, "list the ponds"), and no function: being in one pond is an equivalence, so that a pond has one lowest
// cell; scanned by rising cell number, the first cell of a pond is its lowest, and joining from it numbers the pond (`specs/Numbered`);
// all cells of a pond share one filled elevation, since a wet cell is no higher than any data neighbour; and the volumes add up to the
// differences of the whole sheet, since each wet cell is in one pond and a dry one adds nothing (`specs/Gathered`).
