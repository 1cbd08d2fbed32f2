#![tactic(auto)]

// Laws about writing sheets out (grid's specs/Writing.antt and RoundTrips.antt): what stands at each place of a written text, so that
// reading undoes writing and writing undoes reading, but for the case of letters. There is no function here.
