//! Texts that are no reports of two transactions that each add 1 to a box, with 64 tries, nor of a few more files.
ghost use Rattle.std.specs.Prelude.{◌≡◌, ℕ, [], Ok};
ghost use Rattle.sto_lang.specs.Files.{file_of};
ghost use Rattle.sto_lang.specs.Scripts.{File};
ghost use Rattle.sto_report_spec.specs.Lawful.{IsLawful, IsLawfulJson, IsLawfulIn};
ghost use Rattle.sto_report_spec.specs.declared.form.ReportForm.{ReportForm};
ghost use Rattle.sto_checker.specs.Answer.{IsFound};
ghost use Rattle.sto_checker.specs.declared.found.Found.TheVariants.{Lawful, Not};
ghost use Rattle.sto_serializability.specs.Meanings.{updating_by};
ghost use Rattle.sto_store.specs.Stores.{means};
ghost use Rattle.sto_test_premises.specs.Adding.{file};
ghost use Rattle.sto_test_refusals.specs.Texts.{right, exchanged, left_out, other_reply, other_part, other_writer, other_rows, json_left_out, json_other_reply};
ghost use Rattle.sto_test_refusals.specs.AbortTexts.{twice_script, twice_file, reading_script, reading_file, apart_script, apart_file, places_script, places_file, other_replies, more_replies, own_unseen, saw_itself, settled, unknown_object, unasked_object, untouched_part, seen_writer, unwritten_part, no_transaction, no_thread, two_attempts, after_handed, attempts_exchanged, positions_exchanged, threads_exchanged, before_journal, json_other_replies};

/// They are not lawful.
pub fn no_lawful_report()
    // Its two commits stand in the other order.
    ensures exchanged { IsLawful (updating_by means) file 64 exchanged → ⊥ }
    // A commit is left out.
    ensures left_out { IsLawful (updating_by means) file 64 left_out → ⊥ }
    // A reply is greater by one.
    ensures other_reply { IsLawful (updating_by means) file 64 other_reply → ⊥ }
    // An attempt was aborted by a part that is not one of the object.
    ensures other_part { IsLawful (updating_by means) file 64 other_part → ⊥ }
    // An attempt was aborted by a writer that there is not.
    ensures other_writer { IsLawful (updating_by means) file 64 other_writer → ⊥ }
    // A row is greater by one.
    ensures other_rows { IsLawful (updating_by means) file 64 other_rows → ⊥ }
    // As JSON: a commit is left out, and a reply is greater by one.
    ensures json_left_out { IsLawfulJson (updating_by means) file 64 json_left_out → ⊥ }
    ensures json_other_reply { IsLawfulJson (updating_by means) file 64 json_other_reply → ⊥ }
    // Nothing is a report of no file, in no form.
    ensures nothing { (form : ReportForm) (f : File) (tries : ℕ) → IsLawfulIn form (updating_by means) f tries [] → ⊥ }
{}

/// Nor are those that are right but for an abort line.
pub fn no_lawful_abort()
    // The attempt heard another reply than at that place, or more than a whole run hears.
    ensures other_replies { IsLawful (updating_by means) file 64 other_replies → ⊥ }
    ensures more_replies { IsLawful (updating_by means) file 64 more_replies → ⊥ }
    // It did not see a commit that its own thread had made before, or it saw that of its own transaction.
    ensures own_unseen { IsLawful (updating_by means) twice_file 64 own_unseen → ⊥ }
    ensures saw_itself { IsLawful (updating_by means) file 64 saw_itself → ⊥ }
    // It had only read, and was at its end.
    ensures settled { IsLawful (updating_by means) reading_file 64 settled → ⊥ }
    // It was aborted by an object that there is not or that it does not ask, or by a part that none of its calls touches.
    ensures unknown_object { IsLawful (updating_by means) file 64 unknown_object → ⊥ }
    ensures unasked_object { IsLawful (updating_by means) apart_file 64 unasked_object → ⊥ }
    ensures untouched_part { IsLawful (updating_by means) places_file 64 untouched_part → ⊥ }
    // By a writer that it had seen, or that did not write the part.
    ensures seen_writer { IsLawful (updating_by means) file 64 seen_writer → ⊥ }
    ensures unwritten_part { IsLawful (updating_by means) apart_file 64 unwritten_part → ⊥ }
    // It is one of a transaction or of a thread that there is not.
    ensures no_transaction { IsLawful (updating_by means) file 64 no_transaction → ⊥ }
    ensures no_thread { IsLawful (updating_by means) file 64 no_thread → ⊥ }
    // With one try there are two of one transaction, or one of a transaction that comes after one which was handed back.
    ensures two_attempts { IsLawful (updating_by means) file 1 two_attempts → ⊥ }
    ensures after_handed { IsLawful (updating_by means) twice_file 1 after_handed → ⊥ }
    // Two attempts stand in the other order: of one transaction, of one thread, and of two threads.
    ensures attempts_exchanged { IsLawful (updating_by means) file 64 attempts_exchanged → ⊥ }
    ensures positions_exchanged { IsLawful (updating_by means) twice_file 64 positions_exchanged → ⊥ }
    ensures threads_exchanged { IsLawful (updating_by means) file 64 threads_exchanged → ⊥ }
    // The line stands before the journal.
    ensures before_journal { IsLawful (updating_by means) file 64 before_journal → ⊥ }
    // As JSON: the attempt heard another reply.
    ensures json_other_replies { IsLawfulJson (updating_by means) file 64 json_other_replies → ⊥ }
    // The files are those of these scripts.
    ensures twice { file_of twice_script ≡ Ok twice_file }
    ensures reading { file_of reading_script ≡ Ok reading_file }
    ensures apart { file_of apart_script ≡ Ok apart_file }
    ensures places { file_of places_script ≡ Ok places_file }
{}

/// And the first ones are not found lawful by the checker; the right one is not found wrong.
pub fn not_found_lawful()
    ensures exchanged { IsFound file 64 exchanged Lawful → ⊥ }
    ensures left_out { IsFound file 64 left_out Lawful → ⊥ }
    ensures other_reply { IsFound file 64 other_reply Lawful → ⊥ }
    ensures other_part { IsFound file 64 other_part Lawful → ⊥ }
    ensures other_writer { IsFound file 64 other_writer Lawful → ⊥ }
    ensures other_rows { IsFound file 64 other_rows Lawful → ⊥ }
    // Its first line is right.
    ensures right { IsFound file 64 right (Not 1) → ⊥ }
{}
