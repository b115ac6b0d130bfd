//! Frames and plans: who serves the demands of a set at arrays and objects. Definitions alone.
#![tactic(auto)]
