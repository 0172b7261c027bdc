// Sheets with their transcripts, and sheets with their first mistake. All of them were worked out
// by hand.
#![tactic(auto)]

#[cfg(test)]
mod deferrals;
#[cfg(test)]
mod keepers;
#[cfg(test)]
mod mistakes;
#[cfg(test)]
mod paging_alone;
#[cfg(test)]
mod rests;
#[cfg(test)]
mod transcripts;
