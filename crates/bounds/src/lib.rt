// What is promised of a reading: its takes, its memory, the room of its words, its form. There is no code here.
#![tactic(auto)]
