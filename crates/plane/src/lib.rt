// Points, half planes and convex polygons with whole coordinates: definitions alone, no code.
#![tactic(auto)]
