// Which steps are needed: the first step of each judgment, whether a step is cut, and marks of the needed steps.
#![tactic(auto)]

pub mod cut;
pub mod firsts;
pub mod marks;
// The key of a step, word by word, and the words of the classes.
pub mod classes;
pub mod key;
// Which steps are needed, and the class of each: steps with one key are of one class.
pub mod steps;
pub mod table;
