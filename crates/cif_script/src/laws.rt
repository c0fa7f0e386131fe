// What holds of each transcript.
ghost use Rattle.std.specs.Prelude.{List, None};
ghost use Rattle.cif_defs.specs.Netlist.{Netlist};
ghost use Rattle.cif_defs.specs.Stimulus.{Stimulus};
ghost use Rattle.cif_defs.specs.declared.nets.Wire.{Wire};
ghost use Rattle.cif_script.specs.Legal.{IsTranscript, Rises};
ghost use Rattle.cif_script.specs.declared.answer.Answer.{Answer};
ghost use Rattle.cif_script.specs.declared.session.Line.{Line};

/// The cycles that a legal transcript prints never go back, and stay below the number of cycles.
pub fn cycles_never_go_back()
    ensures { (n : Netlist) (s : Stimulus) (wires : List Wire) (lines : List Line)
        (answers : List Answer) → IsTranscript n s wires lines answers
        → Rises s.cycles None answers }
{}
