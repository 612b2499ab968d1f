// Systematic resampling (Kitagawa 1996) in whole numbers.
#![tactic(auto)]

pub mod children;
pub mod parents;
pub mod theorem;
pub mod total;
