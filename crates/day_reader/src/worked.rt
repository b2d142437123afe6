// Day files worked by hand.
ghost use Rattle.day_reader.specs.Worked.{EachCall, TurnedTeams, HeadRefusals, TeamRefusals};

/// Day files worked by hand say, or are refused for, what is defined.
pub fn worked_files()
    ensures each_call { EachCall }
    ensures turned { TurnedTeams }
    ensures head { HeadRefusals }
    ensures teams { TeamRefusals }
{}
