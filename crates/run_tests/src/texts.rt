// Inputs that several tests share, and what is written of them.

pub const INVOLUTION: &[u8] =
    b"formulas(assumptions).\nf(f(x)) = x.\nexists x f(x) = x.\nend_of_list.\ninterpretation(2, [number = 1,seconds = 0], [function(f(_), [1,0])]).\n";

pub const REPORT: &[u8] = b"formula 1 true\nformula 2 false\n% True=1. False=1.\n% Exit tested.\n";

pub const PROVED: &[u8] =
    b"% Input 35\nformulas(sos).\np.\n-p.\nend_of_list.\n\n============================== PROOF =================================\n1 p.  [assumption].\n2 -p.  [assumption].\n3 p.  [clausify(1)].\n4 -p.  [clausify(2)].\n5 $F.  [resolve(3,a,4,a)].\n============================== end of proof ==========================\n";

pub const ACCEPTED: &[u8] = b"% Proof 1 accepted.\n% Exit accepted 1.\n";

pub const INVOLUTIONS: &[u8] = b"formulas(assumptions).\nf(f(x)) = x.\nend_of_list.\n";

pub const ALL_OF_THREE: &[u8] =
    b"% Domain size 3.\ninterpretation(3, [number = 1,seconds = 0], [\n    function(f(_), [0,1,2])\n]).\ninterpretation(3, [number = 2,seconds = 0], [\n    function(f(_), [0,2,1])\n]).\ninterpretation(3, [number = 3,seconds = 0], [\n    function(f(_), [1,0,2])\n]).\n% Domain size 3 exhausted.\n% Models=3.\n% Exit all_models.\n";

pub const MADE_TWO: &[u8] =
    b"% Made 2.\n% Prover9 status 0. Given=0. Kept=5. Length=15. Level=4.\n% Check accepted.\n% Mace4 status 0. Size=2.\n% Exit made.\n";

pub const SYLLOGISM: &[u8] =
    b"formulas(assumptions).\n-man(x) | mortal(x).\nman(socrates).\nend_of_list.\nformulas(goals).\nmortal(socrates).\nend_of_list.\n";

pub const CONCLUDED: &[u8] =
    b"% Input 120\nformulas(assumptions).\n-man(x) | mortal(x).\nman(socrates).\nend_of_list.\nformulas(goals).\nmortal(socrates).\nend_of_list.\n\n============================== PROOF =================================\n% Proof 1.\n% Length of proof is 7.\n% Level of proof is 2.\n% Maximum clause weight is 4.\n% Given clauses 3.\n1 -man(x) | mortal(x).  [assumption].\n2 man(socrates).  [assumption].\n3 mortal(socrates).  [goal].\n4 -man(x) | mortal(x).  [clausify(1)].\n5 man(socrates).  [clausify(2)].\n6 -mortal(socrates).  [deny(3)].\n7 $F.  [hyper(4,a,5,a),unit_del(a,6)].\n============================== end of proof ==========================\n% Given=3. Generated=1. Kept=3. Large=0. Proofs=1.\nTHEOREM PROVED\n% Exit max_proofs.\n";
