ghost use Rattle.std.specs.Prelude.{◌≡◌, List};
ghost use Rattle.object.specs.declared.command.Answer.{Answer};
ghost use Rattle.object.specs.Answers.{answered_key, AnswersOnce};
ghost use Rattle.recorder.specs.Firsts.{firsts, CutsBefore};

/// Answers that come bit by bit leave the record that they leave in one list. The first answers to each key have
/// no key twice, and where no key stands twice they are all of them.
pub fn firsts_of_firsts<Reply>()
    ensures cut { (xs ys : List (Answer Reply)) → CutsBefore answered_key xs ys }
    ensures once { (xs : List (Answer Reply)) → AnswersOnce (firsts answered_key xs) }
    ensures all { (xs : List (Answer Reply)) → AnswersOnce xs → firsts answered_key xs ≡ xs }
{}
