//! What holds of names as long as none is freed, and so for a user who hides nothing; of a core that is found; and of a
//! check of a proof's bytes; and that `answers` of `answers_of` rules wrong answers out.
ghost use Rattle.varisat.specs.inside.Laws.{NamesStayInOrder, NamesAreIdentities, GivenIsAccepted, TooManyIsPastLimit};
ghost use Rattle.varisat.specs.inside.WrongAnswers.{WrongAnswersFitNoStory};
ghost use Rattle.varisat.specs.inside.FewSteps.{AnswersMakeFewSteps};
ghost use Rattle.varisat.specs.inside.Laws.{AgainIsNoStep, CoresAreLogged, CoresAreWritten, BytesAreAccepted, MarkedProofsPass};

/// Names come into use in order.
pub fn names_stay_in_order()
    ensures { NamesStayInOrder }
{}

/// Each stands for the identity of its number.
pub fn names_are_identities()
    ensures { NamesAreIdentities }
{}

/// So a clause is accepted and a list assumed as it is given.
pub fn given_is_accepted()
    ensures { GivenIsAccepted }
{}

/// It is refused for its names only where one of these is past the limit.
pub fn too_many_is_past_limit()
    ensures { TooManyIsPastLimit }
{}

/// No step deletes a clause and adds it again, unless it is one that may delete learned clauses.
pub fn again_is_no_step()
    ensures { AgainIsNoStep }
{}

/// A core that is found is logged, and conflicts with what is held then.
pub fn cores_are_logged()
    ensures { CoresAreLogged }
{}

/// Under a marked proof its line is the last one then.
pub fn cores_are_written()
    ensures { CoresAreWritten }
{}

/// Where nothing was ever hidden a check of a marked proof, from no clause, finds nothing wrong. It reports just the
/// accepted clauses and the cores, up to where propagation first conflicts, and refutes where the clauses are refuted.
pub fn marked_proofs_pass()
    ensures { MarkedProofsPass }
{}

/// Where nothing was hidden, `check_proof` over the accepted clauses returns for the bytes of an open proof, and for
/// those that the program leaves, Refutation where they refute the clauses, and Derivation else.
pub fn bytes_are_accepted()
    ensures { BytesAreAccepted }
{}

/// The clause `truth` of `answers_of` bounds the steps of a new solver: after each call fewer than (n+2)*2^(n+2) steps were
/// made since the last change, and so fewer than 2^(2n+3), where n variables are counted.
pub fn answers_make_few_steps()
    ensures { AnswersMakeFewSteps }
{}

/// The clause `answers` of `answers_of` rules these wrong answers out: models and cores that lack a name or do not
/// come, a verdict that forgets a clause or assumptions, answers to other calls, and those behind an error without a
/// way back.
pub fn wrong_answers_fit_no_story()
    ensures { WrongAnswersFitNoStory }
{}
