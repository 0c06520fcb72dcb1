// The user's demands as theorems. Read proofs/TheSentence.antt first; proofs/Sentences.antt has the other headline
// sentences. Both are about the functions that run. proofs/Contracts.antt says of each public function that it asks
// nothing and meets a definition, and proofs/Exports.antt says it of each function of the library for other languages.
// The other files have a statement for each further sentence, about the searches as they run or about these
// definitions: a file for each demand and for most requests, and one for MTD(f). docs/THEOREMS.md lists them all. The
// crate has no code.
#![tactic(auto)]
