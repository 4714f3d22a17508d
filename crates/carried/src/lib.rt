// No code: the law that what a segment writes hangs on the vertex that it starts from and on the next one alone, over every call that draws.
#![tactic(auto)]
