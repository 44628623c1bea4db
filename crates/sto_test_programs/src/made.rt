//! The reports that the program makes of one script.
use crate::outcome::outcome_of;
use crate::report::text_of;
use serde_json::Value;
use std::alloc::{AllocError, Global};
use std::thread::Threads;
use sto_cli::NoGate;

/// The report of a script, in both forms.
#[derive(PartialEq, Drop)]
pub struct Reports {
    text: String,
    json: String,
}

impl Reports {
    /// The reports of a command that makes the same one each time. None where the program refuses the script.
    pub fn made_by<R: Threads + Sync>(
        threads: &R,
        alloc: Global,
        command: &str,
        script: &str,
    ) -> Result<Option<Reports>, AllocError> {
        let with_json = format!(in alloc; "{command} --json")?;
        let text = output_of(threads, alloc, command, script)?;
        let json = output_of(threads, alloc, with_json.as_str(), script)?;
        match (text, json) {
            (Some(text), Some(json)) => Ok(Some(Reports { text, json })),
            _ => Ok(None),
        }
    }

    /// The report as the JSON has it. None where that is not what the text says.
    pub fn read_back(&self, alloc: Global) -> Result<Option<Value>, AllocError> {
        let Ok(report) = serde_json::from_str::<Value>(alloc, self.json.as_str()) else {
            return Ok(None);
        };
        let told = text_of(alloc, &report)?;
        Ok(if told == self.text {
            Some(report)
        } else {
            None
        })
    }
}

/// What the program writes for these words and this script. None where the status is not 0.
pub fn output_of<R: Threads + Sync>(
    threads: &R,
    alloc: Global,
    command: &str,
    script: &str,
) -> Result<Option<String>, AllocError> {
    let outcome = outcome_of(threads, alloc, command, script, &NoGate)?;
    if outcome.status == 0 {
        Ok(Some(outcome.written))
    } else {
        Ok(None)
    }
}
