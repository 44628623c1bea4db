//! What `sto` does not print or tell.
ghost use Rattle.std.specs.Prelude.{◌≡◌, ◌<◌, ℕ, List, [], ◌∷◌, Bool, true, false, Option, None, Some, Ok, Err, codes};
ghost use Rattle.sto_lang.specs.Files.{file_of};
ghost use Rattle.sto_lang.specs.Scripts.{File};
ghost use Rattle.sto_lang.specs.declared.fault.FaultKind.{FaultKind};
ghost use Rattle.sto_lang.specs.declared.fault.ScriptFault.{ScriptFault};
ghost use Rattle.sto_lang.specs.Drafts.{transaction_count};
ghost use Rattle.sto_orders.specs.Causes.{least_told};
ghost use Rattle.sto_args.specs.declared.command.Command.{Command};
ghost use Rattle.sto_args.specs.declared.command.Command.TheVariants.{Run, Step, Trace, Draw, Explore, Schedules, Upgrade, Gen, Bench, Help};
ghost use Rattle.sto_args.specs.declared.help.HelpPage.{HelpPage};
ghost use Rattle.sto_args.specs.declared.help.HelpPage.TheVariants as pages;
ghost use Rattle.sto_args.specs.Commands.{command_of};
ghost use Rattle.sto_args.specs.declared.command.Asked.{Asked};
ghost use Rattle.sto_args.specs.declared.command.Asked.TheVariants.{Where, Never};
ghost use Rattle.sto_args.specs.declared.command.By.{By};
ghost use Rattle.sto_console.specs.Ends.{Ends};
ghost use Rattle.sto_console.specs.Statuses.{EndsWith};
ghost use Rattle.sto_console.specs.Outcomes.{IsDone, IsFaulty};
ghost use Rattle.std.specs.List.{Contains};
ghost use Rattle.sto_report_spec.specs.Lawful.{IsLawfulIn};
ghost use Rattle.sto_run.specs.Meanings.{updating_by};
ghost use Rattle.sto_run.specs.Stores.{means};
ghost use Rattle.sto_run.specs.Forms.{form_for};
ghost use Rattle.sto_run.specs.Traced.{turns_in};
ghost use Rattle.sto_run.specs.Stepped.{IsStepReport};
ghost use Rattle.sto_schedule.specs.Schedules.{with_schedule};
ghost use Rattle.sto_orders.specs.declared.same_by.SameBy.{SameBy};
ghost use Rattle.sto_question.specs.declared.fault.QuestionFault.{QuestionFault};
ghost use Rattle.sto_question.specs.Questions.{Question, question_of};
ghost use Rattle.sto_run_orders.specs.declared.report.OrderReport.{OrderReport};
ghost use Rattle.sto_run_orders.specs.Asked.{is_true_in, asked_of};
ghost use Rattle.sto_cli.specs.declared.told.Answer.{Answer};
ghost use Rattle.sto_draw.specs.Drawn.{IsPicture};
ghost use Rattle.sto_cli.specs.Helps.{IsHelped};
ghost use Rattle.sto_cli.specs.Outputs.{IsOutput};
ghost use Rattle.sto_cli.specs.declared.told.Answer.TheVariants.{Done, Found};
ghost use Rattle.sto_cli.specs.Orders.{IsExplored};
ghost use Rattle.sto_cli.specs.Traces.{most_traced};
ghost use Rattle.sto_cli.specs.Programs.{program, answer_status};
ghost use Rattle.sto_test_premises.specs.Adding.{script};
ghost use Rattle.sto_test_refusals.specs.Texts.{right, exchanged, left_out, other_reply, other_part, other_writer, other_rows, json_left_out, json_other_reply};
ghost use Rattle.sto_test_program_refusals.specs.Inputs.{lost_update, lost_update_file, alone_changed, alone_reversed, one_less, one_left_out};

/// What `run` does not print of two transactions that each add 1 to a box, and how it does not end.
pub fn not_run()
    ensures exchanged { (threads : Option ℕ) → IsOutput (Run threads 64 false) script exchanged → ⊥ }
    ensures left_out { (threads : Option ℕ) → IsOutput (Run threads 64 false) script left_out → ⊥ }
    ensures other_reply { (threads : Option ℕ) → IsOutput (Run threads 64 false) script other_reply → ⊥ }
    ensures other_part { (threads : Option ℕ) → IsOutput (Run threads 64 false) script other_part → ⊥ }
    ensures other_writer { (threads : Option ℕ) → IsOutput (Run threads 64 false) script other_writer → ⊥ }
    ensures other_rows { (threads : Option ℕ) → IsOutput (Run threads 64 false) script other_rows → ⊥ }
    // As JSON.
    ensures json_left_out { (threads : Option ℕ) → IsOutput (Run threads 64 true) script json_left_out → ⊥ }
    ensures json_other_reply { (threads : Option ℕ) → IsOutput (Run threads 64 true) script json_other_reply → ⊥ }
    // With one worker: another number, another order, and an aborted attempt.
    ensures alone_changed { IsOutput (Run (Some 1) 64 false) script alone_changed → ⊥ }
    ensures alone_reversed { IsOutput (Run (Some 1) 64 false) script alone_reversed → ⊥ }
    ensures alone_aborted { IsOutput (Run (Some 1) 64 false) script right → ⊥ }
    // With status 0 and nothing written, whatever it read.
    ensures nothing { (threads : Option ℕ) (tries : ℕ) (json : Bool) (bytes held : List ℕ)
        → IsDone program Done (Some (Run threads tries json)) (Some bytes) (Some []) (Some held) (Some held) → ⊥ }
    // With a fault, which the script has not.
    ensures fault { (threads : Option ℕ) (tries : ℕ) (json : Bool) → IsFaulty program (Some (Run threads tries json)) (Some script) (Some []) → ⊥ }
{}

/// What `step`, `trace`, `draw`, `explore` and `schedules` do not print or tell.
pub fn not_stepped()
    // A report in which a commit is left out, and one of which a reply is another.
    ensures left_out { IsOutput (Step 64 false None) script left_out → ⊥ }
    ensures other_reply { IsOutput (Step 64 false None) script other_reply → ⊥ }
    // Nothing.
    ensures step_nothing { (tries : ℕ) (json : Bool) (schedule : Option (List ℕ)) (bytes : List ℕ)
        → IsOutput (Step tries json schedule) bytes [] → ⊥ }
    ensures trace_nothing { (json : Bool) → IsOutput (Trace 64 json None) lost_update [] → ⊥ }
    ensures explore_nothing { (by : By) (states : ℕ) (json : Bool) (asked : Option Asked) (bytes : List ℕ)
        → IsOutput (Explore by states json asked) bytes [] → ⊥ }
    // Anything of a script whose orders need more nodes than are allowed.
    ensures explore_beyond { (by : By) (states : ℕ) (json : Bool) (asked : Option Asked) (bytes text : List ℕ) (f : File)
        → file_of bytes ≡ Ok f → states < least_told f.threads → IsOutput (Explore by states json asked) bytes text → ⊥ }
    ensures schedules_nothing { (switches tries : ℕ) (json : Bool) (bytes : List ℕ) → IsOutput (Schedules switches tries json) bytes [] → ⊥ }
    // Anything of a script with too many transactions, or of bytes that are none.
    ensures schedules_beyond { (switches tries : ℕ) (json : Bool) (bytes text : List ℕ) (f : File)
        → file_of bytes ≡ Ok f → most_traced < transaction_count f.threads → IsOutput (Schedules switches tries json) bytes text → ⊥ }
    ensures trace_beyond { (tries : ℕ) (json : Bool) (bytes text : List ℕ) (f : File)
        → file_of bytes ≡ Ok f → most_traced < transaction_count f.threads → IsOutput (Trace tries json None) bytes text → ⊥ }
    ensures draw_beyond { (tries : ℕ) (bytes text : List ℕ) (f : File)
        → file_of bytes ≡ Ok f → most_traced < transaction_count f.threads → IsOutput (Draw tries None) bytes text → ⊥ }
    ensures schedules_no_script { (switches tries : ℕ) (json : Bool) (bytes text : List ℕ) (fault : ScriptFault)
        → file_of bytes ≡ Err fault → IsOutput (Schedules switches tries json) bytes text → ⊥ }
    // A picture of two threads without an event.
    ensures no_event { (text : List ℕ) (p : IsPicture 64 lost_update_file text) → p.steps ≡ [] → ⊥ }
    // That a run of two threads has too many events, or any other fault.
    ensures trace_fault { (json : Bool) → IsFaulty program (Some (Trace 64 json None)) (Some lost_update) (Some []) → ⊥ }
    ensures draw_fault { IsFaulty program (Some (Draw 64 None)) (Some lost_update) (Some []) → ⊥ }
{}

/// What is not printed of a script with the schedule of words, and what this is not.
pub fn not_scheduled()
    // A report of none of the runs by these words.
    ensures led_elsewhere { (tries : ℕ) (json : Bool) (words bytes text : List ℕ) (f g : File)
        → file_of bytes ≡ Ok f → with_schedule f words ≡ Ok g → IsOutput (Step tries json (Some words)) bytes text
        → (IsStepReport (form_for json) g tries (turns_in g.schedule) text → ⊥) → ⊥ }
    // Anything for words that the script could not have on its line.
    ensures no_schedule { (tries : ℕ) (json : Bool) (words bytes text : List ℕ) (f : File) (kind : FaultKind)
        → file_of bytes ≡ Ok f → with_schedule f words ≡ Err kind → IsOutput (Step tries json (Some words)) bytes text → ⊥ }
    // That of the script itself, that of a thread that there is not, and one without a step.
    ensures own_kept { with_schedule lost_update_file (codes "1:10") ≡ Ok lost_update_file → ⊥ }
    ensures no_thread { (f : File) → with_schedule lost_update_file (codes "2:1") ≡ Ok f → ⊥ }
    ensures no_steps { (f : File) → with_schedule lost_update_file (codes "0:0") ≡ Ok f → ⊥ }
{}

/// What `explore` does not tell of outcomes that are asked for.
pub fn not_asked()
    // One of which the question is false.
    ensures false_told { (json : Bool) (f : File) (q : Question) (r : OrderReport) (reports others : List OrderReport)
        → is_true_in (form_for json) f q r.report.items ≡ false → asked_of (form_for json) f q reports ≡ r ∷ others → ⊥ }
    // Not all of which it is true.
    ensures left_out { (json : Bool) (f : File) (q : Question) (r : OrderReport) (reports : List OrderReport)
        → Contains reports r → is_true_in (form_for json) f q r.report.items ≡ true
        → (Contains (asked_of (form_for json) f q reports) r → ⊥) → ⊥ }
    // That there is none, where a lawful report, by any schedule, tries and threads, tells a state of which it is true.
    ensures never_silent { (by : SameBy) (states tries : ℕ) (json : Bool) (words bytes text report : List ℕ) (f : File) (q : Question)
        → file_of bytes ≡ Ok f → question_of f words ≡ Ok q → IsLawfulIn (form_for json) (updating_by means) f tries report
        → is_true_in (form_for json) f q report ≡ true → IsExplored by states json (Some (Never words)) bytes Done text → ⊥ }
    // That there is one, where of no lawful report it is true.
    ensures never_loud { (by : SameBy) (states : ℕ) (json : Bool) (words bytes text : List ℕ) (f : File) (q : Question)
        → file_of bytes ≡ Ok f → question_of f words ≡ Ok q
        → ((report : List ℕ) → IsLawfulIn (form_for json) (updating_by means) f 64 report → is_true_in (form_for json) f q report ≡ false)
        → IsExplored by states json (Some (Never words)) bytes Found text → ⊥ }
    // And where nothing is asked, or what may be.
    ensures found_unasked { (by : SameBy) (states : ℕ) (json : Bool) (bytes text : List ℕ) → IsExplored by states json None bytes Found text → ⊥ }
    ensures found_where { (by : SameBy) (states : ℕ) (json : Bool) (words bytes text : List ℕ)
        → IsExplored by states json (Some (Where words)) bytes Found text → ⊥ }
    // Anything for words that are no question.
    ensures no_question { (by : SameBy) (states : ℕ) (json : Bool) (words bytes text : List ℕ) (f : File) (fault : QuestionFault) (answer : Answer)
        → file_of bytes ≡ Ok f → question_of f words ≡ Err fault → IsExplored by states json (Some (Where words)) bytes answer text → ⊥ }
{}

/// What `upgrade`, `gen` and `bench` do not print.
pub fn not_generated()
    // A script of version 1 as it is.
    ensures upgrade_same { IsOutput Upgrade script script → ⊥ }
    // Two texts for one script.
    ensures upgrade_other { (bytes text other : List ℕ) → IsOutput Upgrade bytes text → IsOutput Upgrade bytes other → (other ≡ text → ⊥) → ⊥ }
    // Nothing, and another script than at another time.
    ensures gen_nothing { (number : ℕ) (bytes : List ℕ) → IsOutput (Gen number) bytes [] → ⊥ }
    ensures gen_other { (number : ℕ) (bytes others text other : List ℕ) → IsOutput (Gen number) bytes text → IsOutput (Gen number) others other
        → (other ≡ text → ⊥) → ⊥ }
    // A summary of which the accounts hold 1 less than all, and one of which a transaction is left out.
    ensures one_less { (threads : Option ℕ) (bytes : List ℕ) → IsOutput (Bench 1 threads) bytes one_less → ⊥ }
    ensures one_left_out { (threads : Option ℕ) (bytes : List ℕ) → IsOutput (Bench 1 threads) bytes one_left_out → ⊥ }
{}

/// What `--help` does not print, how a call that asks for it does not end, and which words do not ask for it.
pub fn not_helped()
    // Nothing, and the page of another command.
    ensures nothing { (page : HelpPage) (bytes : List ℕ) → IsOutput (Help page) bytes [] → ⊥ }
    ensures other_page { (bytes text : List ℕ) → IsOutput (Help pages.Run) bytes text → IsOutput (Help pages.Step) bytes text → ⊥ }
    // With the status of words that are none.
    ensures usage { (page : HelpPage) (left rest held now : Option (List ℕ)) → IsHelped page 2 left rest held now → ⊥ }
    // With status 0 and nothing written, and after a byte was read.
    ensures silent { (page : HelpPage) (left rest : Option (List ℕ)) (held : List ℕ) → IsHelped page 0 left rest (Some held) (Some held) → ⊥ }
    ensures read { (page : HelpPage) (status byte : ℕ) (bytes : List ℕ) (held now : Option (List ℕ))
        → IsHelped page status (Some (byte ∷ bytes)) (Some bytes) held now → ⊥ }
    // Words that name the command before, ask twice, name none, or say more.
    ensures behind { command_of (codes "run" ∷ codes "--help" ∷ []) ≡ None }
    ensures twice { command_of (codes "--help" ∷ codes "--help" ∷ []) ≡ None }
    ensures nonsense { command_of (codes "--help" ∷ codes "nonsense" ∷ []) ≡ None }
    ensures more { command_of (codes "--help" ∷ codes "run" ∷ codes "--json" ∷ []) ≡ None }
{}

/// How a call with words that are a command does not end.
pub fn not_ended()
    // With the status of words that are none.
    ensures usage { (command : Command) (left rest held now : Option (List ℕ))
        → EndsWith answer_status 2 (λ outcome. Ends program outcome (Some command) left rest held now) → ⊥ }
    // With the status of a fault and something written.
    ensures written { (command : Command) (left rest held now : Option (List ℕ))
        → EndsWith answer_status 3 (λ outcome. Ends program outcome (Some command) left rest held now) → (now ≡ held → ⊥) → ⊥ }
{}
