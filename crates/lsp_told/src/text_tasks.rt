//! Which texts of files a desk is to be given.
ghost use Rattle.std.specs.Prelude.{◌≡◌, ◌++◌, IfErr, IfOk, OnOk};
ghost use Rattle.base_files.specs.Path.{IsPath};
ghost use Rattle.std.specs.FinMap as map;
ghost use Rattle.lsp_documents.specs.Changes.{text_made};
ghost use Rattle.lsp_documents.specs.Documents.{document_at};
ghost use Rattle.lsp_told.specs.Listed.{found_list};
ghost use Rattle.lsp_told.specs.TextTasks.{
  ArePuts,
  FindsPut,
  IsPutOf,
  closed_del,
  disk_tasks,
  found_put,
  found_puts,
  has_other,
  missing_del,
  missing_dels,
  other_put,
  put_task,
};

use base_files::{FileText, Files, Path, Refusal};
use lsp_documents::{Document, Documents};
use std::alloc::{AllocError, Global};

/// The text that a file is to have, or none where the file is to go.
#[derive(Drop)]
pub struct TextTask {
    pub path: Path,
    pub text: Option<FileText>,
}

/// Whether the file of a path has another text, or there is none.
fn has_other(files: &Files, path: &Path, text: &[u8]) -> bool
    ensures { result ≡ has_other (map.get files.now path.now) text.now }
{
    match files.get(path) {
        Some(old) => old.bytes() != text,
        None => true,
    }
}

/// The task that a file have this text.
fn put_task(path: &Path, text: &FileText) -> Result<TextTask, AllocError>
    ensures { IfOk result (λ task. task ≡ put_task path.now text.now) }
{
    let path = path.clone()?;
    let text = Some(text.clone()?);
    Ok(TextTask { path, text })
}

/// Adds the put of a file that is not open, unless it has this text.
fn push_other(
    tasks: &mut Vec<TextTask>,
    files: &Files,
    path: &Path,
    text: &FileText,
) -> Result<(), AllocError>
    ensures { OnOk result (tasks.new.items ≡ tasks.old.items ++ other_put (map.get files.now path.now) path.now text.now) }
{
    if has_other(files, path, text.bytes()) {
        let task = put_task(path, text)?;
        tasks.push(task)?;
        Ok(())
    } else {
        Ok(())
    }
}

/// Adds the put of a file on the disk, unless it is open or has this text.
fn push_found(
    tasks: &mut Vec<TextTask>,
    files: &Files,
    documents: &Documents,
    path: &Path,
    text: &FileText,
) -> Result<(), AllocError>
    ensures { OnOk result (tasks.new.items ≡ tasks.old.items ++ found_put files.now documents.now path.now text.now) }
{
    match documents.get(path.as_str()) {
        Some(_) => Ok(()),
        None => push_other(tasks, files, path, text),
    }
}

/// Adds the puts of the files on the disk.
fn push_all_found(
    tasks: &mut Vec<TextTask>,
    files: &Files,
    documents: &Documents,
    disk: &Files,
) -> Result<(), AllocError>
    ensures { OnOk result (tasks.new.items ≡ tasks.old.items ++ found_puts files.now documents.now disk.now) }
{
    for (path, text) in disk.iter() {
        push_found(tasks, files, documents, path, text)?;
    }
    Ok(())
}

/// Adds the del of a file that is not on the disk, unless it is open.
fn push_del(tasks: &mut Vec<TextTask>, documents: &Documents, path: &Path) -> Result<(), AllocError>
    ensures { OnOk result (tasks.new.items ≡ tasks.old.items ++ closed_del (document_at documents.now path.now) path.now) }
{
    match documents.get(path.as_str()) {
        Some(_) => Ok(()),
        None => {
            let path = path.clone()?;
            tasks.push(TextTask { path, text: None })?;
            Ok(())
        }
    }
}

/// Adds the del of a file that is neither on the disk nor open.
fn push_missing(
    tasks: &mut Vec<TextTask>,
    documents: &Documents,
    disk: &Files,
    path: &Path,
) -> Result<(), AllocError>
    ensures { OnOk result (tasks.new.items ≡ tasks.old.items ++ missing_del documents.now disk.now path.now) }
{
    match disk.get(path) {
        Some(_) => Ok(()),
        None => push_del(tasks, documents, path),
    }
}

/// Adds the dels of files that are neither on the disk nor open.
fn push_all_missing(
    tasks: &mut Vec<TextTask>,
    files: &Files,
    documents: &Documents,
    disk: &Files,
) -> Result<(), AllocError>
    ensures { OnOk result (tasks.new.items ≡ tasks.old.items ++ missing_dels files.now documents.now disk.now) }
{
    for (path, _) in files.iter() {
        push_missing(tasks, documents, disk, path)?;
    }
    Ok(())
}

/// What makes files those on the disk, but for those that are open.
pub fn disk_tasks(
    alloc: Global,
    files: &Files,
    documents: &Documents,
    disk: &Files,
) -> Result<Vec<TextTask>, AllocError>
    ensures { IfOk result (λ tasks. tasks.items ≡ disk_tasks files.now documents.now disk.now) }
{
    let mut tasks = Vec::new(alloc);
    push_all_missing(&mut tasks, files, documents, disk)?;
    push_all_found(&mut tasks, files, documents, disk)?;
    Ok(tasks)
}

/// The task that a file have these bytes.
fn bytes_task(alloc: Global, path: Path, bytes: &[u8]) -> Result<TextTask, AllocError>
    ensures { IfOk result (λ task. task ≡ put_task path bytes.now) }
{
    let copy = Vec::from_slice(alloc, bytes)?;
    let text = Some(FileText::new(alloc, copy)?);
    Ok(TextTask { path, text })
}

/// The put of a text, where the file of the path has another one, or is none.
fn put_at(
    alloc: Global,
    files: &Files,
    path: Path,
    text: &[u8],
) -> Result<Option<TextTask>, AllocError>
    requires { IsPath 2 path }
    ensures { IfOk result (FindsPut files.now path text.now) }
{
    if has_other(files, &path, text) {
        Ok(Some(bytes_task(alloc, path, text)?))
    } else {
        Ok(None)
    }
}

/// The put of a text, where a file can have the name and has another text, or is none.
fn put_named(
    alloc: Global,
    files: &Files,
    name: &str,
    text: &[u8],
) -> Result<Option<TextTask>, Refusal>
    ensures found { IfOk result (FindsPut files.now name.now text.now) }
    ensures memory { IfErr result (λ refusal. refusal ≡ Refusal.Memory) }
{
    match Path::read(alloc, name, 2) {
        Ok(path) => Ok(put_at(alloc, files, path, text)?),
        Err(Refusal::BadPath) => Ok(None),
        Err(refusal) => Err(refusal),
    }
}

/// The put of a document.
fn put_of(
    alloc: Global,
    files: &Files,
    name: &str,
    document: &Document,
) -> Result<Option<TextTask>, Refusal>
    ensures found { IfOk result (IsPutOf files.now name.now (text_made document.now.text)) }
    ensures memory { IfErr result (λ refusal. refusal ≡ Refusal.Memory) }
{
    match &document.text {
        Some(text) => put_named(alloc, files, name, text.as_slice()),
        None => Ok(None),
    }
}

/// Adds a task, if there is one.
fn push_put(tasks: &mut Vec<TextTask>, put: Option<TextTask>) -> Result<(), AllocError>
    ensures { OnOk result (tasks.new.items ≡ tasks.old.items ++ found_list put) }
{
    match put {
        Some(task) => {
            tasks.push(task)?;
            Ok(())
        }
        None => Ok(()),
    }
}

/// The puts of the documents that are open.
pub fn document_tasks(
    alloc: Global,
    files: &Files,
    documents: &Documents,
) -> Result<Vec<TextTask>, Refusal>
    ensures found { IfOk result (λ tasks. ArePuts files.now documents.now.entries.entries tasks.items) }
    ensures memory { IfErr result (λ refusal. refusal ≡ Refusal.Memory) }
{
    let mut tasks = Vec::new(alloc);
    for (name, document) in documents.entries().iter() {
        let put = put_of(alloc, files, name.as_str(), document)?;
        push_put(&mut tasks, put)?;
    }
    Ok(tasks)
}
