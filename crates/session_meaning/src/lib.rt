// What a session and its bytes stand for, and when they are sound: definitions and theorems, no code.

#![tactic(auto)]
