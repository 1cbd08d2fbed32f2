#![tactic(auto)]

// The flood: how the fill (document 01, "Fill") goes through the cells in order of key, with a queue for the level at hand. The state is
// in specs/, over the two lists that a work buffer packs: what stays (keys, cells in order of key, marks of voids) and what grows (queue,
// levels). The laws in proofs/ say what each step makes of it.
