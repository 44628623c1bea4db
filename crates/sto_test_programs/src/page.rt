//! A page as text, and the runs, mistakes and faults that it shows.
use std::alloc::{AllocError, Global};

// The line of a script in whose place the rows of a table of mistakes stand.
const GAP: &str = "\n...\n";

/// A run of the program that a page shows.
#[derive(Drop)]
pub struct Example {
    /// The line of the page on which the command stands, from 1.
    pub line: usize,
    /// What stands after `./sto`.
    pub command: String,
    /// The last script that the page shows before the command.
    pub script: String,
    /// The lines that the page shows below the command.
    pub output: String,
}

/// A row of a page's table of mistakes.
#[derive(Drop)]
pub struct Mistake {
    /// The line of the page on which the row stands, from 1.
    pub line: usize,
    /// A script that is refused.
    pub wrong: String,
    /// The line that the program says of it.
    pub says: String,
    /// The script that was meant.
    pub right: String,
}

/// An input of a page's table of faults.
#[derive(Drop)]
pub struct Fault {
    /// The line of the page on which the row stands, from 1.
    pub line: usize,
    /// A script that is refused.
    pub wrong: String,
    /// The line that the program says of it.
    pub says: String,
}

#[derive(Drop)]
enum Place {
    Text,
    Script,
    Console,
    Other,
}

/// All that a page shows.
#[derive(Drop)]
pub struct Page {
    pub examples: Vec<Example>,
    pub mistakes: Vec<Mistake>,
    pub faults: Vec<Fault>,
    place: Place,
    script: String,
    alloc: Global,
}

impl Page {
    /// Reads a page in Markdown. Blocks marked `sto` hold scripts and those marked `console` runs. Below a script with
    /// a gap, a row of three cells in backquotes is a mistake. Elsewhere a row of a kind, a text, inputs and the number
    /// of a line tells of faults.
    pub fn read(alloc: Global, text: &str) -> Result<Page, AllocError> {
        let mut page = Page {
            examples: Vec::new(alloc),
            mistakes: Vec::new(alloc),
            faults: Vec::new(alloc),
            place: Place::Text,
            script: String::new(alloc),
            alloc,
        };
        for (place, line) in text.lines().enumerate() {
            page.take(place.saturating_add(1), line)?;
        }
        Ok(page)
    }

    fn take(&mut self, number: usize, line: &str) -> Result<(), AllocError> {
        match self.place {
            Place::Text => self.take_text(number, line),
            _ if line == "```" => {
                self.place = Place::Text;
                Ok(())
            }
            Place::Script => add_line(&mut self.script, line),
            Place::Console => self.take_console(number, line),
            Place::Other => Ok(()),
        }
    }

    fn take_text(&mut self, number: usize, line: &str) -> Result<(), AllocError> {
        if line == "```sto" {
            self.script = String::new(self.alloc);
            self.place = Place::Script;
        } else if line == "```console" {
            self.place = Place::Console;
        } else if line.starts_with("```") {
            self.place = Place::Other;
        } else if line.starts_with("| `") && self.script.contains(GAP) {
            self.take_mistake(number, line)?;
        } else if line.starts_with("| `") {
            self.take_faults(number, line)?;
        }
        Ok(())
    }

    fn take_console(&mut self, number: usize, line: &str) -> Result<(), AllocError> {
        if let Some(command) = line.strip_prefix("$ ./sto") {
            let example = Example {
                line: number,
                command: String::from_str(self.alloc, command)?,
                script: self.script.clone()?,
                output: String::new(self.alloc),
            };
            self.examples.push(example)?;
        } else if let Some(example) = self.examples.last_mut() {
            add_line(&mut example.output, line)?;
        }
        Ok(())
    }

    fn take_mistake(&mut self, number: usize, line: &str) -> Result<(), AllocError> {
        let mut cells = line.split('`').skip(1).step_by(2);
        let (Some(wrong), Some(says), Some(right)) = (cells.next(), cells.next(), cells.next())
        else {
            return Ok(());
        };
        let mistake = Mistake {
            line: number,
            wrong: self.framed(wrong)?,
            says: String::from_str(self.alloc, says)?,
            right: self.framed(right)?,
        };
        self.mistakes.push(mistake)?;
        Ok(())
    }

    // The inputs stand between semicolons; one that is no script is told in words.
    fn take_faults(&mut self, number: usize, line: &str) -> Result<(), AllocError> {
        let mut cells = line.split('|').skip(1);
        let (Some(kind), Some(_), Some(inputs), Some(at)) = (
            cells.next(),
            cells.next(),
            cells.next(),
            cells.next(),
        ) else {
            return Ok(());
        };
        let Ok(at) = at.trim().parse::<u32>() else {
            return Ok(());
        };
        for input in inputs.split(';') {
            if let Some(wrong) = code_of(self.alloc, input.trim())? {
                let kind = kind.trim().trim_matches('`');
                let says = format!(in self.alloc; "sto: line {at}: {kind}")?;
                self.faults.push(Fault {
                    line: number,
                    wrong,
                    says,
                })?;
            }
        }
        Ok(())
    }

    // A cell that is no whole script stands where the last script has the line `...`.
    fn framed(&self, cell: &str) -> Result<String, AllocError> {
        let mut script = String::new(self.alloc);
        if cell.contains("begin") {
            add_cell(&mut script, cell)?;
            return Ok(script);
        }
        for line in self.script.lines() {
            if line == "..." {
                add_cell(&mut script, cell)?;
            } else {
                add_line(&mut script, line)?;
            }
        }
        Ok(script)
    }
}

fn add_line(text: &mut String, line: &str) -> Result<(), AllocError> {
    text.push_str(line)?;
    text.push('\n')?;
    Ok(())
}

// The lines of a cell are separated by slashes.
fn add_cell(script: &mut String, cell: &str) -> Result<(), AllocError> {
    for line in cell.split(" / ") {
        add_line(script, line)?;
    }
    Ok(())
}

// The script whose lines stand in backquotes and are separated by slashes.
fn code_of(alloc: Global, text: &str) -> Result<Option<String>, AllocError> {
    let mut script = String::new(alloc);
    for piece in text.split(" / ") {
        let Some(line) = piece
            .strip_prefix("`")
            .and_then(|rest| rest.strip_suffix("`"))
        else {
            return Ok(None);
        };
        add_line(&mut script, line)?;
    }
    Ok(Some(script))
}
