//! Each place of a program has one reading.
ghost use Rattle.std.specs.Prelude.{◌≡◌, ℕ, List, Option};
ghost use Rattle.zed_oop_syntax.specs.declared.commands.OopCommand.{OopCommand};
ghost use Rattle.zed_oop_syntax.specs.declared.conditions.Query.{Query};
ghost use Rattle.zed_oop_syntax.specs.declared.heading.Heading.{Heading};
ghost use Rattle.zed_oop_syntax.specs.declared.lines.Instruction.{Instruction};
ghost use Rattle.zed_oop_syntax.specs.Command.{CommandAt};
ghost use Rattle.zed_oop_syntax.specs.Condition.{QueryAt};
ghost use Rattle.zed_oop_syntax.specs.Heading.{DirectionAt};
ghost use Rattle.zed_oop_syntax.specs.Line.{InstructionAt};

/// There is exactly one direction at each place, known or not, and it ends at one place.
pub fn one_direction()
    ensures stands { (p : List ℕ) (at : ℕ) → (h : Heading) × ((end : ℕ) × DirectionAt p at h end) }
    ensures alone { (p : List ℕ) (at : ℕ) (h g : Heading) (m n : ℕ)
        → DirectionAt p at h m → DirectionAt p at g n → (h ≡ g) × (m ≡ n) }
{}

/// There is exactly one condition at each place, and it ends at one place.
pub fn one_condition()
    ensures stands { (p : List ℕ) (at : ℕ) → (q : Query) × ((end : ℕ) × QueryAt p at q end) }
    ensures alone { (p : List ℕ) (at : ℕ) (q r : Query) (m n : ℕ)
        → QueryAt p at q m → QueryAt p at r n → (q ≡ r) × (m ≡ n) }
{}

/// There is exactly one command at each place, or no word, and it ends at one place.
pub fn one_command()
    ensures stands { (p : List ℕ) (at : ℕ)
        → (c : Option OopCommand) × ((end : ℕ) × CommandAt p at c end) }
    ensures alone { (p : List ℕ) (at : ℕ) (c d : Option OopCommand) (m n : ℕ)
        → CommandAt p at c m → CommandAt p at d n → (c ≡ d) × (m ≡ n) }
{}

/// There is exactly one instruction at each place, and the program goes on at one place after it.
pub fn one_instruction()
    ensures stands { (p : List ℕ) (at : ℕ)
        → (i : Instruction) × ((next : ℕ) × InstructionAt p at i next) }
    ensures alone { (p : List ℕ) (at : ℕ) (i j : Instruction) (m n : ℕ)
        → InstructionAt p at i m → InstructionAt p at j n → (i ≡ j) × (m ≡ n) }
{}
