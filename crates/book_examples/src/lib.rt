// Lists of calls that show what the turn guarantee speaks of, and what each of its conditions is for; and lists that meet
// the premises of the limit guarantee and of the wake guarantee. No code.
#![tactic(auto)]
