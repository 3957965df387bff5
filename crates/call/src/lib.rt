// What every call for C that solves promises on its byte slices: definitions, laws and the tables. The code is in `deliver` and `host`.
#![tactic(auto)]

// The tables of a call's outcome, in bytes. The counts of the offices are lent beside them: they outlast the call.
#[derive(Drop)]
pub struct Tables<'a> {
    pub flow: &'a mut [u8],
    pub lengths: &'a mut [u8],
    pub answer: &'a mut [u8],
}
