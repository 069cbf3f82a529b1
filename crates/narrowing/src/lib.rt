// Boxes inside boxes: what the calendar rule, load and excess come to on smaller boxes, that a step only makes them smaller, and so what holds on the
// way of a run: definitions (specs/) and the laws about them (proofs/).

#![tactic(auto)]
