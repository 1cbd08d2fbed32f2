#![tactic(auto)]

// Laws of culverts, and no function: what lists of entries make of a sheet. An opened cell is at the lowest of its elevation and the levels
// named for it, so neither the order of the entries nor how often one is named matters; and no accepted list makes a void of a data cell.
