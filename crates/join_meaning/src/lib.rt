// Two tables joined to one, as bytes: the rule file of a table, and that the file of a joined table is good, stands for
// it, and allows what demand 3 says. There is no code here.

#![tactic(auto)]
