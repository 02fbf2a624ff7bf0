//! Tests of texts: the two languages, DISKGROUP statements and asmcmd lines, and the texts and
//! words of a session.
#![tactic(auto)]

#[cfg(test)]
mod languages;
#[cfg(test)]
mod words;
