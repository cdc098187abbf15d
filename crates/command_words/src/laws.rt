//! Laws of what words ask for, the contracts of functions that do nothing.
ghost use Rattle.std.specs.Prelude.{◌≡◌, true, false, [], ◌∷◌, Some, None, codes};
ghost use Rattle.command_words.specs.Asked.{asked_words};
ghost use Rattle.command_words.specs.Desk.{desk_words};
ghost use Rattle.command_words.specs.declared.desk.DeskWords.TheVariants.{Run, Help, Version};
ghost use Rattle.command_words.specs.declared.asking.Asked.TheVariants.{RuleFile, Load};

use crate::Mode;

/// The defaults, the options in both forms and in any place, and what else is the name of a rule file; a load.
pub fn words_ask_for_what_they_say()
    ensures defaults { asked_words (codes "RULES" ∷ []) ≡ Some (RuleFile (codes "RULES") Mode.Run 100000 None) }
    ensures options { asked_words (codes "--mode" ∷ codes "check" ∷ codes "--limit" ∷ codes "0000003" ∷ codes "r" ∷ [])
        ≡ Some (RuleFile (codes "r") Mode.Check 3 None) }
    ensures equals_signs { asked_words (codes "r" ∷ codes "--limit=1000000" ∷ codes "--mode=lives" ∷ [])
        ≡ Some (RuleFile (codes "r") Mode.Lives 1000000 None) }
    ensures after_dashes { asked_words (codes "--" ∷ codes "--mode" ∷ []) ≡ Some (RuleFile (codes "--mode") Mode.Run 100000 None) }
    ensures dash { asked_words (codes "-" ∷ []) ≡ Some (RuleFile (codes "-") Mode.Run 100000 None) }
    ensures empty { asked_words ([] ∷ []) ≡ Some (RuleFile [] Mode.Run 100000 None) }
    ensures load { asked_words (codes "--gen" ∷ codes "0" ∷ []) ≡ Some (Load 0 100000) }
    ensures load_with_options { asked_words (codes "--limit=5" ∷ codes "--gen=2147483647" ∷ codes "--mode" ∷ codes "run" ∷ [])
        ≡ Some (Load 2147483647 5) }
    ensures save { asked_words (codes "--mode=save" ∷ codes "r" ∷ []) ≡ Some (RuleFile (codes "r") Mode.Save 100000 None) }
    ensures resume { asked_words (codes "--resume" ∷ codes "i" ∷ codes "r" ∷ []) ≡ Some (RuleFile (codes "r") Mode.Run 100000 (Some (codes "i"))) }
    ensures resume_and_save { asked_words (codes "r" ∷ codes "--resume=i" ∷ codes "--mode" ∷ codes "save" ∷ [])
        ≡ Some (RuleFile (codes "r") Mode.Save 100000 (Some (codes "i"))) }
{}

/// Words that are refused.
pub fn other_words_are_refused()
    ensures no_words { asked_words [] ≡ None }
    ensures help { asked_words (codes "--help" ∷ []) ≡ None }
    ensures other_mode { asked_words (codes "--mode" ∷ codes "fly" ∷ codes "r" ∷ []) ≡ None }
    ensures zero { asked_words (codes "--limit" ∷ codes "0" ∷ codes "r" ∷ []) ≡ None }
    ensures above { asked_words (codes "--limit" ∷ codes "1000001" ∷ codes "r" ∷ []) ≡ None }
    ensures digits { asked_words (codes "--limit" ∷ codes "00000003" ∷ codes "r" ∷ []) ≡ None }
    ensures twice { asked_words (codes "--mode" ∷ codes "run" ∷ codes "--mode" ∷ codes "run" ∷ codes "r" ∷ []) ≡ None }
    ensures two { asked_words (codes "r" ∷ codes "s" ∷ []) ≡ None }
    ensures load_and_rules { asked_words (codes "--gen" ∷ codes "1" ∷ codes "r" ∷ []) ≡ None }
    ensures load_checked { asked_words (codes "--gen" ∷ codes "1" ∷ codes "--mode" ∷ codes "check" ∷ []) ≡ None }
    ensures load_above { asked_words (codes "--gen" ∷ codes "2147483648" ∷ []) ≡ None }
    ensures load_saved { asked_words (codes "--gen" ∷ codes "1" ∷ codes "--mode" ∷ codes "save" ∷ []) ≡ None }
    ensures load_resumed { asked_words (codes "--gen" ∷ codes "1" ∷ codes "--resume" ∷ codes "i" ∷ []) ≡ None }
    ensures resume_checked { asked_words (codes "--resume" ∷ codes "i" ∷ codes "--mode" ∷ codes "check" ∷ codes "r" ∷ []) ≡ None }
    ensures resume_alone { asked_words (codes "--resume" ∷ codes "i" ∷ []) ≡ None }
    ensures load_digits { asked_words (codes "--gen" ∷ codes "00000000001" ∷ []) ≡ None }
{}

/// What the words of the program `desk` ask for: options in both forms and in any place; without a rule file they are refused.
pub fn words_of_a_desk_ask_for_what_they_say()
    ensures text { desk_words (codes "--text" ∷ codes "r" ∷ [])
        ≡ Some (Run (record { rules = codes "r"; each = 100000; image = None; keep = None; text = true })) }
    ensures all { desk_words (codes "r" ∷ codes "--image=i" ∷ codes "--limit" ∷ codes "7" ∷ codes "--text" ∷ [])
        ≡ Some (Run (record { rules = codes "r"; each = 7; image = Some (codes "i"); keep = None; text = true })) }
    ensures keep { desk_words (codes "--keep" ∷ codes "s" ∷ codes "r" ∷ [])
        ≡ Some (Run (record { rules = codes "r"; each = 100000; image = None; keep = Some (codes "s"); text = false })) }
    ensures keep_with_image { desk_words (codes "--image=i" ∷ codes "r" ∷ codes "--keep=s" ∷ [])
        ≡ Some (Run (record { rules = codes "r"; each = 100000; image = Some (codes "i"); keep = Some (codes "s"); text = false })) }
    ensures objects { desk_words (codes "r" ∷ []) ≡ Some (Run (record { rules = codes "r"; each = 100000; image = None; keep = None; text = false })) }
    ensures help { desk_words (codes "--text" ∷ codes "--help" ∷ []) ≡ Some Help }
    ensures version { desk_words (codes "--version" ∷ []) ≡ Some Version }
    ensures no_rules { desk_words (codes "--text" ∷ []) ≡ None }
    ensures zero { desk_words (codes "--text" ∷ codes "--limit=0" ∷ codes "r" ∷ []) ≡ None }
    ensures two { desk_words (codes "--text" ∷ codes "r" ∷ codes "s" ∷ []) ≡ None }
    ensures keep_twice { desk_words (codes "--keep=s" ∷ codes "--keep" ∷ codes "s" ∷ codes "r" ∷ []) ≡ None }
    ensures keep_alone { desk_words (codes "--keep" ∷ codes "s" ∷ []) ≡ None }
    ensures keep_nothing { desk_words (codes "r" ∷ codes "--keep" ∷ []) ≡ None }
{}
