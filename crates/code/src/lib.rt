// Theory only. Reed-Solomon words: specs/Word.antt. What a codeword is: specs/Definition.antt.

#![tactic(auto)]
